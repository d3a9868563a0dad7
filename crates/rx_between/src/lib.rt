//! What holds between the two ends of a call, along any joint history: what one takes for acknowledged the other has.
#![tactic(auto)]

mod laws;

pub use laws::{
    ackalls_tell, acknowledged_arrived, acks_tell, data_tells, ends_agree, messages_make_sense,
};
