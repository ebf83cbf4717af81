//! Tests of what stands at the edge: numbers, names and octets, sources and sinks, disks, devices, entropies and wires.
#![tactic(auto)]

#[cfg(test)]
mod cases;
#[cfg(test)]
mod devices;
#[cfg(test)]
mod disks;
#[cfg(test)]
mod edges;
#[cfg(test)]
mod numbers;
