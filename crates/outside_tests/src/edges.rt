mod adapters;
mod memory;
mod tcp;
