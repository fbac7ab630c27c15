//! Sessions of a shared store, by what no program of the repository asks of one. Sessions at work are the races of
//! `tests/runs/`, and `deputy` and `service` of `examples`.

mod batches;
mod hands;
mod opened;
mod parks;
mod rounds;
mod shares;
mod shown;
mod story;
mod unasked;
