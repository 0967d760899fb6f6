// A small value for a hall, and threads that act on it.
#[cfg(test)]
mod crowd;
#[cfg(test)]
mod tally;
#[cfg(test)]
mod tests;
