//! The laws of what is read, each called once.

use asl_parser::laws::{ground_beliefs, one_answer};

#[test]
fn laws_are_called() {
    one_answer();
    ground_beliefs();
    mas_project::laws::one_reading();
    mas_project::laws::one_answer();
    mas_project::laws::some_agents();
    mas_report_schedule::laws::one_answer();
    mas_report_schedule::laws::one_end();
    mas_report_schedule::laws::printed_again();
    mas_report_schedule::laws::maximal_runs();
    mas_top_files::laws::one_source();
    mas_top_files::laws::not_refused();
    mas_top_files::laws::one_refusal();
    mas_top_files::laws::known_there();
    mas_top_demo::laws::demo_is_described();
    mas_top_demo::laws::demo_is_not_refused();
    mas_top_demo::laws::demo_is_refused();
    mas_top::laws::not_refused();
    mas_top::laws::one_refusal();
    mas_top::laws::can_repeat();
    mas_top::laws::can_check();
    mas_top::laws::can_renew();
    mas_top::laws::reports_keep_laws();
}
