// Tests of tasks over a desk in memory of whose calls each fails in turn.
#[cfg(test)]
mod faults;
#[cfg(test)]
mod script;
#[cfg(test)]
mod trial;
