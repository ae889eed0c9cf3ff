//! Typed operands, conversions of them as nodes, and the typing rules of expressions that the types of their parts decide.
//!
//! The rules are in `specs/Rules.antt`, one predicate for each sentence; `specs/Operands.antt` says what conversions give.
//!
//! A function that lets go of a tree takes many minutes to prove. So only generic ones do, proved once (`held.rt`, `judging.rt`):
//! others hand them the trees that they hold, and leave by `?` with none.
#![tactic(auto)]

mod conversion;
mod held;
mod judging;
mod operand;
mod rule;

pub use conversion::{arithmetic_kind, converted, in_kind, promoted_kind};
pub use held::{beside, both, boxes, parts};
pub use judging::{asked, asked_twice, present};
pub use operand::{Operand, plain, plains, taken};
pub use rule::{
    is_nil, is_pointer, rule_7_is_complete, rule_24_adds, rule_24_multiplies, rule_24_signs,
    rule_24_subtracts, rule_25_complements, rule_25_has_integers, rule_26_equates, rule_26_orders,
    rule_27_is_condition, rule_28_steps, rule_29_is_no_array, rule_30_points, rule_31_indexes,
    rule_33_converts, rule_34_updates, rule_36_prints, rule_38_casts, rule_39_has_size,
    rule_43_is_channel, rule_43_sends, rule_44_is_no_void,
};
