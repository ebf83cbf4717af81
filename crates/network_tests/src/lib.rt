//! Tests of the top call, and of a manager alone on a disk whose octets are given, that want what no stored run can say
//! (`examples/runs` has those that can): devices, entropies and wires that fail, wires behind a sink that fails, workers that are held,
//! ports in memory, and the octets of disks.
#![tactic(auto)]

#[cfg(test)]
mod bench;
#[cfg(test)]
mod edges;
#[cfg(test)]
mod gates;
#[cfg(test)]
mod journals;
#[cfg(test)]
mod migrations;
#[cfg(test)]
mod octets;
#[cfg(test)]
mod outside;
#[cfg(test)]
mod pair;
#[cfg(test)]
mod refusals;
#[cfg(test)]
mod run;
#[cfg(test)]
mod serves;
#[cfg(test)]
mod starts;
