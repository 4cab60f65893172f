//! The rules of names and places, form by form: what each name of a query means over a schema, what is around a place in
//! the text, and what tree a form gives for the trees of its parts, or which rule it breaks.
//! Takes the parts of a form and what is around it; gives the part of the core tree that the form is, whose steps are still
//! by name.
//! Contract: each function answers what the rule of its name tells (`specs/Paths`, `Forms`, `Shapes`, `Statements`), with the
//! first failure where there is one, but for want of memory (`Answers` of `specs/Naming`).
//! Seen by `eql_resolve`.
#![tactic(auto)]

mod around;
mod clauses;
mod forms;
mod meaning;
mod paths;
mod refusal;
mod shapes;
mod statements;

pub use around::{Around, Subject, element_of, find, subject_of};
pub use clauses::{Clauses, Defined, Elements, Rows};
pub use forms::{
    Joint, absent_ascending, absent_descending, applied, called, cast_to, chosen, empty_cast,
    global, is_empty_set, joined, need_of, number, parameter, prefixed, width_of,
};
pub use meaning::{Function, Meant, function_meant, is_module, type_meant};
pub use paths::{
    element_subject, linked_to, name, narrowed_to, next, next_subject, occurrence_of, own_subject,
    partial_back_link, partial_linked, partial_property, partial_step, scope_at, step_behind,
    step_from, stepped, subject_at, type_of,
};
pub use refusal::{NameRefusal, NameRule};
pub use shapes::{
    kept, nested_made, nested_scope, no_elements, pointer_element, property_element, shape_made,
    with_element,
};
pub use statements::{defined_too, named, selected, selected_rows, start_of_statement, undefined};
