// Tests of what errors print that no program prints.
#[cfg(test)]
mod errors;
