//! What holds of whole fields, for every rule that shows the laws: painted records are right, each worked row keeps
//! every record right, and the finished values depend on nothing but the rule, the sizes and the marks.
#![tactic(auto)]

mod theorems;

pub use theorems::{
    fields_agree, least_is_least, mark_reaches_all, painted_holds, pass_goes, point_is_nearest,
    records_agree, row_values_fit, rows_finish, rows_keep_right, step_up, value_below_ceiling,
    value_is_least,
};
