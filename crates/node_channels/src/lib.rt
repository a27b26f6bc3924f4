//! The channels between all nodes of a world: server, clients and store. Each message is taken once, in the order in which
//! it was sent. Laws say that they stand for the channels of the protocol's table.
#![tactic(auto)]

mod channels;
mod lanes;
mod laws;
mod queue;

pub use channels::Channels;
pub use laws::{
    a_step_has_its_own_channel, a_step_of_the_world_is_its_nodes_row,
    a_step_takes_what_the_table_takes, channels_stand_at_first,
    empty_channels_are_empty_in_the_table, traces_count_by_their_contexts,
    what_is_sent_is_delivered, what_is_sent_is_what_the_table_sends,
};
