// The kinds that keep who brought an order, and with which mark: the last triple, and the ten of the highest orders.
#![tactic(auto)]

pub mod last;
pub mod ten;
pub mod triple;
