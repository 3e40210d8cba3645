//! The code of operands: addresses, pairs, products by numbers, stores, relations, and conditions that jump.
#![tactic(auto, using(std::proofs::lemmas::List::append_assoc))]

mod addresses;
mod answers;
mod branches;
mod byte_relations;
mod loads;
mod pairs;
mod products;
mod relations;
mod stores;
mod word_relations;

pub use addresses::{
    note_word, plan_addition, plan_address, plan_location_address, plan_location_word,
    plan_word_at_hl,
};
pub use answers::{Answer, Purpose, Setting, plan_known};
pub use branches::{Branch, Junction, Shape, plan_branch};
pub use byte_relations::{Form, Sides, plan_byte_number, plan_byte_relation, plan_number_in_a};
pub use loads::{plan_byte_in_memory, plan_extended_byte_in_memory, plan_word_in_memory};
pub use pairs::{Choices, PairForm, PairOrder, plan_pair, plan_pair_in_order};
pub use products::{plan_byte_product, plan_product};
pub use relations::{Outcome, plan_relation, plan_relation_value};
pub use stores::{Goal, Near, plan_store};
pub use word_relations::{Apart, Word, Words, plan_word_number, plan_word_relation};
