mod journals;
mod wires;
