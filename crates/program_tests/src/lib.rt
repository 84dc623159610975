// Tests of texts, of the engines over devices that fail, and of the program over memory.
#![tactic(auto)]

#[cfg(test)]
mod checks;
#[cfg(test)]
mod command_lines;
#[cfg(test)]
mod cuts;
#[cfg(test)]
mod devices;
#[cfg(test)]
mod large;
#[cfg(test)]
mod readers;
#[cfg(test)]
mod runs;
#[cfg(test)]
mod solves;
