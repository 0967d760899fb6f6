// Tests of rounds of roles that count their runs.
#[cfg(test)]
mod counting;
#[cfg(test)]
mod tests;
