// What the definitions of what `special` does accept and refuse of worked runs. Each law is the contract of a function with
// nothing to do. They stand in the program's crate, on which no other is built: what a library is made of is summed up once for each
// way down from it, and from up here that would take the gate minutes.
mod audit_laws;
mod info_laws;
mod laws;
mod recovery_laws;
mod rehearsal_laws;
