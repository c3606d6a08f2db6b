//! The processor's registers: the PSW, program and real addresses, the general registers and the access controller.
#![tactic(auto)]

#[tactic(auto, unfolding(model::specs::Controller::limit_of, model::specs::Controller::relocation_of, model::specs::Controller::no_execute_of, model::specs::Controller::write_mode_of, model::specs::Controller::present_of, model::specs::Controller::used, model::specs::Controller::chosen, model::specs::Controller::block, model::specs::Controller::within, model::specs::Controller::present, model::specs::Controller::no_execute, model::specs::Controller::write_mode, model::specs::Controller::real, model::specs::Controller::is_controller, model::specs::Controller::is_segment, model::specs::Controller::is_faults, model::specs::Controller::clears_faults, model::specs::Controller::half_of, model::specs::Controller::with_half, model::specs::Controller::controller_half, model::specs::Controller::segments_after, model::specs::Controller::faults_after_read, fields::specs::Parts::high_half, fields::specs::Parts::low_half, fields::specs::Parts::joined, fields::specs::Parts::with_low_half))]
pub mod controller;
#[tactic(auto, unfolding(model::specs::Status::file_of, model::specs::Status::slot))]
pub mod file;
#[tactic(auto, unfolding(model::specs::Status::file_of, model::specs::Status::waits, model::specs::Status::polls, model::specs::Status::arithmetic_on, model::specs::Status::relocated, model::specs::Status::protected, model::specs::Status::recoded, model::specs::Status::selected, model::specs::Status::counter, model::specs::Status::address, model::specs::Status::to_half, model::specs::Status::to_full, model::specs::Status::to_psw, crate::specs::Parity::is_odd))]
pub mod psw;
pub mod words;
