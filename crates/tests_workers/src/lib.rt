//! Cases that workers run beside each other: forty cases leave the same text and the same hits on one worker and on four, and a
//! worker that is held at a case holds no other. Hits that are taken while cases run are in some dump or in the rest.
#![tactic(auto)]

#[cfg(test)]
mod dump_rows;
#[cfg(test)]
mod dump_runs;
#[cfg(test)]
mod dump_tool;
#[cfg(test)]
mod hold;
#[cfg(test)]
mod rows;
#[cfg(test)]
mod runs;
#[cfg(test)]
mod told;
#[cfg(test)]
mod tool;
#[cfg(test)]
mod work;
