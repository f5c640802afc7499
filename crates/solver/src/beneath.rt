// What the public calls rest on: a call that nothing refuses, whose stores are filled and then solved, how many equations it has, and the test of the ids.
pub mod call;
pub mod esis;
pub mod filling;
pub mod sizes;
