// Tests of bounds, of desks, of filled states, of dispatches in copies, of branching, of the search of one piece and of
// verdicts.
#![tactic(auto)]

#[cfg(test)]
mod bounds;
#[cfg(test)]
mod branches;
#[cfg(test)]
mod copies;
#[cfg(test)]
mod desks;
#[cfg(test)]
mod fills;
#[cfg(test)]
mod in_lanes;
#[cfg(test)]
mod instances;
#[cfg(test)]
mod long_machines;
#[cfg(test)]
mod machines;
#[cfg(test)]
mod numbers;
#[cfg(test)]
mod searches;
#[cfg(test)]
mod shuffled_layouts;
#[cfg(test)]
mod verdicts;
#[cfg(test)]
mod words;
