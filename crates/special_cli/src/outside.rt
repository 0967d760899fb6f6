use ann_outside::{Desks, Programs};
use std::marker::Model;

/// What a command reaches outside itself: the programs that it starts, and the desks of its workers.
#[derive(Drop)]
pub(crate) struct Outside<P: Programs, K: Desks> {
    pub(crate) programs: P,
    pub(crate) desks: K,
}

impl<P: Programs, K: Desks> Model for Outside<P, K> {
    ghost use Rattle.child_life.specs.End.Outsides.{OutsideValue};

    ghost Value = { OutsideValue };

    ghost view = { λ o. record { programs = P.told o.programs; made = K.made o.desks } };
}
