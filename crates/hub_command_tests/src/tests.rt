mod dialing;
mod durations;
mod plans;
mod sockets;
mod waits;
mod words;
