//! Tables by which schedules are counted that no walk visits.

ghost use Rattle.std.specs.Prelude.{IfOk};
ghost use Rattle.lu_tree.specs.Tables.{AreRunTables, CountOrdersUpTo};

use lu_component::Component;
use lu_horizon::{DeadRegisters, Horizon};
use lu_orders::Orders;
use lu_test::Matrix;
use std::alloc::{AllocError, Global};

/// How many moves of each thread of a component and a matrix are certain, in how many orders moves
/// of several threads can be made, and which registers are dead. Made once, for any number of
/// searches.
#[derive(Debug, Drop)]
pub(crate) struct Tables {
    pub(crate) horizon: Horizon,
    pub(crate) orders: Orders,
    pub(crate) dead: DeadRegisters,
}

impl Tables {
    /// The tables of a component and a matrix, for searches up to a bound of 0 to 256 moves. A
    /// search up to a greater bound is right too, but walks more.
    ///
    /// # Errors
    ///
    /// `AllocError` where memory was refused.
    pub(crate) fn new(
        alloc: Global,
        component: &Component,
        matrix: &Matrix,
        bound: u16,
    ) -> Result<Tables, AllocError>
        ensures tables { IfOk result (AreRunTables component.now matrix.now) }
        ensures orders { IfOk result (CountOrdersUpTo bound) }
    {
        Ok(Tables {
            horizon: Horizon::new(alloc, component, matrix, bound)?,
            orders: Orders::new(alloc, bound)?,
            dead: DeadRegisters::new(alloc, component)?,
        })
    }
}
