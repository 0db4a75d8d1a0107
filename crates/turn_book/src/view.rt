//! What a slot holds, and what a seat knows.
use std::collections::LinkedList;
use std::snapshot::Snapshot;

/// What lies in a slot: a value, or nothing.
#[derive(Drop)]
pub enum Held<V: Drop, W: Drop> {
    Desk(V),
    Chip(W),
    Away,
}

/// What a book is told when it opens.
#[derive(Drop)]
pub struct About<V> {
    pub desk: Snapshot<V>,
    pub callers: u32,
}

/// What is kept of a caller that has ended.
pub struct Ended<S, R> {
    pub number: u64,
    pub seen: LinkedList<S>,
    pub mine: LinkedList<S>,
    pub jseen: LinkedList<R>,
    pub rounds: LinkedList<u64>,
}

/// What a seat knows. No value of it is made: it exists in proofs alone.
pub struct View<G, S, R> {
    pub number: u64,
    pub callers: u64,
    /// `None` where the seat is spent.
    pub opening: Option<G>,
    pub seen: LinkedList<S>,
    pub mine: LinkedList<S>,
    pub jseen: LinkedList<R>,
    pub rounds: LinkedList<u64>,
    /// Whether the desk is out with this seat.
    pub desk_turn: bool,
    /// Whether the chip side is out with this seat.
    pub chip_turn: bool,
    pub takes: u64,
    pub misses: u64,
    pub tries: u64,
    /// Whether this seat makes the others.
    pub makes: bool,
    /// How many are made, where it makes them.
    pub made: u64,
    /// Whether another seat took this one in.
    pub spent: bool,
    pub ended: LinkedList<Ended<S, R>>,
}
