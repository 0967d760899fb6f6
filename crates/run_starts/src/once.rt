// A run that starts its one child once and does no task: what its journal has of that, and what is left of it. No code runs.
