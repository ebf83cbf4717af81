//! Tests of threads, and of HTTP: machines that several threads call, shares of a lane's bytes, jobs of several workers, and frames that
//! two workers seal at once; then what a connection's octets mean, what refusals and rare replies are answered, what is written to each
//! connection that is served, how it ends, and the listeners of the workers that serve.
#![tactic(auto)]

#[cfg(test)]
mod blocks;
#[cfg(test)]
mod desks;
#[cfg(test)]
mod doors;
#[cfg(test)]
mod either;
#[cfg(test)]
mod emissions;
#[cfg(test)]
mod errands;
#[cfg(test)]
mod front;
#[cfg(test)]
mod givers;
#[cfg(test)]
mod lane;
#[cfg(test)]
mod listeners;
#[cfg(test)]
mod machines;
#[cfg(test)]
mod parts;
#[cfg(test)]
mod requests_and_replies;
#[cfg(test)]
mod rows;
#[cfg(test)]
mod shares;
#[cfg(test)]
mod site;
#[cfg(test)]
mod tellers;
#[cfg(test)]
mod turnstiles;
#[cfg(test)]
mod workers;
