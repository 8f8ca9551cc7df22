//! Laws of runs above the program: whatever the link loses, delays and spoils, and whatever becomes of a run.
//!
//! No program depends on it. A law is a function with an empty body, and its contract is a theorem about definitions
//! alone. What a call itself promises is in the contracts of avr_tool. Seven laws are functions with one of its calls
//! for a body: those of [`program`](a_program_with_status_0_kept_its_plan), [`status_0_means_the_images`],
//! [`status_0_means_the_images_on_an_emulated_chip`] and [`a_program_with_status_0_left_what_it_compared_last`].
#![tactic(auto)]

// what a plan asks of files
mod again;
mod planning;
// what a run leaves, reports and sends over any link
mod any_line;
mod conversations;
mod damaged_frames;
mod few_bad_frames;
// what a plan writes, address by address
mod written;
// a programmer of any kind
mod any_programmer;
// runs from settings to a status, and worked ones
mod bootloaders;
mod chip_file;
mod crashes;
mod program;
mod runs;

pub use again::{
    a_second_run_repairs_the_first, the_same_run_again_repairs,
    what_agrees_on_two_chips_agrees_on_all,
};
pub use any_line::{
    a_run_does_its_write_operations_in_order, a_run_sends_at_most_four_times_its_commands,
    a_session_outputs_its_expected_run_up_to_a_fault, a_session_over_a_wire_can_be_believed,
    a_session_over_any_link, what_a_run_reports_is_true,
    what_a_run_reports_is_true_on_an_emulated_chip, what_was_reported_was_true,
    whatever_becomes_of_a_session_its_first_write_operations_were_done,
};
pub use any_programmer::{
    AnyProgrammer, a_programmer_is_as_the_frames_that_it_executed,
    the_emulated_programmer_keeps_the_table,
};
pub use bootloaders::{
    AnyReader, a_program_with_status_0_left_what_it_compared_last,
    a_run_over_a_bootloader_meets_all_premises,
};
pub use chip_file::{a_run_finds_and_leaves_the_chip_of_its_file, the_chip_file_holds_the_images};
pub use conversations::{
    a_conversation_in_turn_is_never_idle, a_link_that_forges_no_frame_is_authentic,
    a_wire_is_an_authentic_link, over_a_wire_a_conversation_follows_its_exchanges,
    over_any_tape_a_conversation_follows_its_exchanges,
};
pub use crashes::{
    a_crash_leaves_the_old_chip_or_the_new_one, a_crash_leaves_the_old_chip_or_the_served_one,
};
pub use damaged_frames::{
    a_link_that_damages_one_byte_forges_no_frame,
    over_a_link_that_damages_one_byte_status_0_means_the_images,
};
pub use few_bad_frames::a_run_with_few_bad_frames_is_its_expected_run;
pub use planning::{
    a_plan_fits_its_part, a_plan_is_of_whole_files, a_plan_is_the_one_asked_for,
    a_plan_only_reads_and_warns, a_sound_plan_is_refused_aloud, what_is_promised_is_what_runs_do,
};
pub use program::{
    a_program_with_status_0_kept_its_plan,
    a_program_with_status_0_kept_its_plan_on_an_emulated_chip,
    whatever_the_status_first_write_operations_were_made,
    whatever_the_status_first_write_operations_were_made_on_an_emulated_chip,
};
pub use runs::{
    a_forged_frame_voids_the_promise, a_run_over_a_bad_link_meets_all_premises,
    a_sound_run_is_its_expected_run, a_worked_run_has_one_outcome, a_wrong_outcome_is_refused,
    an_ended_run_and_one_with_status_0_are_as_one,
    an_ended_run_and_one_with_status_0_are_as_one_on_an_emulated_chip, status_0_means_the_images,
    status_0_means_the_images_on_an_emulated_chip,
};
pub use written::{
    a_byte_of_flash_is_made_by_images, a_plan_writes_what_its_tasks_write,
    a_verified_run_leaves_its_images, an_expected_run_succeeds_if_it_agrees,
    what_is_written_is_there,
};
