// The header program's work (document 01, 'Headers'): what twelve bytes of transmission information and four of a payload id say, as text.
#![tactic(auto)]

pub mod beneath;
