//! The run of a scenario over the abstract network: its actions, its report, what it leaves, and the headline.
#![tactic(auto)]
