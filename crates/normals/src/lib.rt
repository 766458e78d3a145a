// The words of draws into normals and their bytes: kinds 5 and 6.
#![tactic(auto)]

pub mod normal_f32s;
pub mod normal_f64s;
mod several;
