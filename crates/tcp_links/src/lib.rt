//! The links of a node, and of a client, over TCP: who is called and let in, what waits to be sent, and the records under
//! a key.
//!
//! Nothing can be proved of what the other end sends, so the links tell nothing. What is proved is that each call is safe,
//! counts its fault as the trait says, and ends as far as the calls of the system end, and that each line tells its
//! beginnings and ends by turns, with bytes between them alone.
#![tactic(auto)]

mod addresses;
mod callers;
mod channels;
mod clients;
mod connections;
mod homes;
mod keys;
mod lines;
mod links;
mod neighbours;
mod pieces;
mod rounds;
mod seals;
mod streams;
mod tellings;

pub use links::TcpLink;
