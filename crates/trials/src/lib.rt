// Worked sheets, and what is printed for them.
#![tactic(auto)]

#[cfg(test)]
mod faults;
#[cfg(test)]
mod lean_orders;
#[cfg(test)]
mod live_bytes;
#[cfg(test)]
mod maps;
#[cfg(test)]
mod net_changes;
#[cfg(test)]
mod owned;
#[cfg(test)]
mod printing;
#[cfg(test)]
mod runs;
