// Examples that are run: sheets with their answers, listings with their text, rows as networks, order books, loads, writes, job lists, and runs.
#![tactic(auto)]

#[cfg(test)]
mod books;
#[cfg(test)]
mod jobs;
#[cfg(test)]
mod lent;
#[cfg(test)]
mod listings;
#[cfg(test)]
mod loads;
#[cfg(test)]
mod rows;
#[cfg(test)]
mod runs;
#[cfg(test)]
mod sheets;
#[cfg(test)]
mod writes;
