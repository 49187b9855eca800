// What a system keeps.

use crate::channels::Channels;
use pg_default::DefaultPager;
use pg_file::FilePager;
use sms_server::Server;
use std::alloc::Global;
use vm_base::{Buffers, PageSize};
use vm_hosts::Hosts;
use vm_model::{Declared, Events, History};
use vm_ports::Ports;

#[derive(Drop)]
pub struct State {
    pub alloc: Global,
    pub size: PageSize,
    pub hosts: Hosts,
    // By the numbers of their hosts.
    pub pagers: Vec<DefaultPager>,
    // The declared objects, by their numbers.
    pub declared: Vec<Declared>,
    // By these numbers too: those of files are asked.
    pub files: Vec<FilePager>,
    // Of all shared objects.
    pub server: Server,
    // A letter is the index of the event that sent it, counted from the oldest.
    pub ports: Ports<u32>,
    pub channels: Channels,
    pub buffers: Buffers,
    pub history: History,
    // Of the step that is made, and empty between steps: what the hosts did.
    pub log: Events,
}
