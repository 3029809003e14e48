//! Requests and replies at their edges, and with memory refused.
mod held;
mod long;
mod looked;
mod refusals;
mod replies;
mod streams;
mod telling;
