// Desks, call by call: in memory, shared, and over the files of this machine; streams that fail; a child in memory.
#[cfg(test)]
mod calls;
#[cfg(test)]
mod children;
#[cfg(test)]
mod desks;
#[cfg(test)]
mod disk;
#[cfg(test)]
mod streams;
