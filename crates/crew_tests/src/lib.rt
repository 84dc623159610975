// Tests of rounds, of runs, of both crews and of the claim board.
#![tactic(auto)]

#[cfg(test)]
mod board_runs;
#[cfg(test)]
mod boards;
#[cfg(test)]
mod closing;
#[cfg(test)]
mod crews;
#[cfg(test)]
mod gates;
#[cfg(test)]
mod instances;
#[cfg(test)]
mod rounds;
#[cfg(test)]
mod runs;
#[cfg(test)]
mod sharing;
#[cfg(test)]
mod telling;
#[cfg(test)]
mod worked_rows;
