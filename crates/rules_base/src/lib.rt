//! What the typing rules of both kinds of instructions share: the types that sums, differences and products give, what
//! moves keep, the places that a register and a pair name, how a cell there is accessed, and which rule a row of
//! several parts fails by. docs/RULES.md has the rules in words.
//!
//! Promises:
//!
//! - `sum`, `difference`, `product`: each gives the type that the rows of `specs/Sums.antt` give, in which the first
//!   row that applies holds. `lin` is unknown past 2^20.
//! - `constant`, `full`, `span_of`, `constant_of`, `is_int`, `is_int_below`: the parts of types that the rows look at,
//!   each what `specs/Parts.antt` says; so are `numbers_up_to`, `divisor_of`, `fall_of`, `near_offset`, `offset_of`,
//!   `lin_of`, `pointer_of`, `is_near` and `signed` inside the crate. `wrap64` is that of `ebc_width`.
//! - `kept`, `kept_dword`, `kept_natural`, `kept_signed`: what a move keeps of a value in a register.
//! - `place_at`: the place that a register and a pair name, a cell of an object, a local field, a parameter or a thunk
//!   cell, or none. `local_fields`, `locals_size`, `cell_of`, `slot_size`, `has_field`, `only_field` and `with_field`
//!   give what it rests on.
//! - `load_at`, `target_at`: what a load there gives, and the cell that a store writes, or the rule that fails. `takes`
//!   tells whether a cell takes a value.
//! - `operand_value`, `register_type`, `destination_of`, `put`: the value of an operand, the place of a result, and
//!   what is changed once a value is left there, or the rule that fails. `form_access`, `counted`, `extra_distance`,
//!   `index_distance`, `left_distance`, `with_immediate` and `with_index` give what stands beside an operand.
//! - `thing_at`, `relocated`, `takes_address`: the static object or thunk cell that starts at a place, and the address
//!   that a relocated immediate is. They look through both lists once.
//! - `beside`, `also`, `both`, `needs`: parts beside one another fail by the rule that is tried first, as
//!   `specs/Outcomes.antt` says; `rules_laws` proves what it means.
//! - `Change::apply`: `s.new` is the state after the change.
//! - `Here`, `Access`, `Loaded`, `Target`, `Destination`, `Place`, `Distance` and `Span` are plain data.
#![tactic(auto)]

mod access;
mod change;
mod destination;
mod divisors;
mod here;
mod keeps;
mod operand;
mod outcome;
mod parts;
mod place;
mod sums;
mod thing;
mod value;

pub use access::{Access, Loaded, Target, load_at, takes, target_at};
pub use change::Change;
pub use destination::{Destination, destination_of, put};
pub use here::Here;
pub use keeps::{kept, kept_dword, kept_natural, kept_signed};
pub use operand::{
    Distance, counted, extra_distance, index_distance, left_distance, with_immediate, with_index,
};
pub use outcome::{also, beside, both, needs};
pub use parts::{Span, constant, constant_of, full, is_int, is_int_below, span_of, wrap64};
pub use place::{
    Place, cell_of, has_field, local_fields, locals_size, only_field, place_at, slot_size,
    with_field,
};
pub use sums::{difference, lin, product, sum};
pub use thing::{relocated, takes_address, thing_at};
pub use value::{form_access, operand_value, register_type};
