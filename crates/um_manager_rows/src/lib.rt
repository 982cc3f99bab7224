//! Worked rows of processes, the manager and its clients: runners and children, scripts of turns, openings after a
//! crash, serving over a gate, and the requests and output of the client, by public calls alone.
#![tactic(auto)]

#[cfg(test)]
mod backlogs;
#[cfg(test)]
mod crashes;
#[cfg(test)]
mod exchanges;
#[cfg(test)]
mod fakes;
#[cfg(test)]
mod folders;
#[cfg(test)]
mod gates;
#[cfg(test)]
mod helps;
#[cfg(test)]
mod instances;
#[cfg(test)]
mod lives;
#[cfg(test)]
mod managers;
#[cfg(test)]
mod orders;
#[cfg(test)]
mod places;
#[cfg(test)]
mod replies;
#[cfg(test)]
mod requests;
#[cfg(test)]
mod runs;
#[cfg(test)]
mod scripts;
#[cfg(test)]
mod serving;
#[cfg(test)]
mod stepping;
#[cfg(test)]
mod texts;
#[cfg(test)]
mod turns;
