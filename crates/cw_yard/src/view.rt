//! The knowledge of a token at the cells. No value of these types is made.

use cw_jobs::job::Job;

pub enum Stage {
    Free,
    Held(u64, Job),
    Out(u64, Job),
    Back(u64, Job, u64, Job),
    Taken(u64, Job),
}

pub enum CellView {
    Idle,
    Rest(u64),
    Owner(u64, Stage),
    Duty(u64, bool, u64, Job),
}
