//! A reader and a card with the field between them.
use crate::air::Air;
use card::Card;
use reader::Session;

mod calls;
mod field;
mod runs;
mod views;

#[derive(Drop)]
pub struct Pair<A> {
    reader: Session,
    card: Card<A>,
    air: Air,
}
