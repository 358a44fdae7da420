//! Laws on checking: what the check of a source accepts is lawful.
#![tactic(auto)]

mod laws;

pub use laws::{
    blocks_are_lawful, constants_are_values, declarators_are_lawful, expressions_may_rest,
    functions_are_lawful, functions_of_sources_are_lawful, globals_of_sources_are_lawful,
    heads_are_lawful, main_is_there, names_stand_once, objects_are_whole, points_stand,
    stores_are_lawful, structs_and_functions_are_few, structs_of_sources_are_lawful,
    variables_stand_in_order, what_check_accepts_is_lawful, what_is_walked_is_lawful,
};
