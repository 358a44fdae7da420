//! The stack of frames on the board: the services `enter` and `leave` place frames where the placement of frames says, and
//! leave the stack as it was before them. What the two services do is the definition of `ideal430`, and so is the code.
#![tactic(auto)]

mod laws;

pub use laws::{
    enter_makes_the_frame_that_is_placed, frames_are_placed_one_by_one,
    leave_takes_back_the_frame_that_is_placed,
};
