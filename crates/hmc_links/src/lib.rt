//! The links of a network, called by the numbers of directions.
//!
//! [`LinkList`] has a `Link` of hmc_link for each link of a topology. Where each stands for the
//! entries that a journal has of it (`LinksStandFor`), each call answers what these entries say.
#![tactic(auto)]

mod link_list;

pub use link_list::LinkList;
