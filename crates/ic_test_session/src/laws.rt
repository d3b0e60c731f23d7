use std::test::Fail;

#[test]
fn laws_of_printed_texts_hold(_rt: HostRuntime) -> Result<(), Fail> {
    ic_text::round_trip::printable();
    ic_text::round_trip::denotes();
    ic_text::round_trip::faultless();
    ic_text::round_trip::reread();
    ic_text::round_trip::same_bytes();
    ic_text::round_trip::round_trip();
    Ok(())
}

#[test]
fn laws_of_shown_links_hold(_rt: HostRuntime) -> Result<(), Fail> {
    ic_cause::shown::degrees();
    ic_cause::shown::partners();
    ic_cause::shown::causes();
    ic_cause::shown::fired();
    ic_cause::shown::undone();
    Ok(())
}

#[test]
fn lines_of_an_input_end_at_feeds(_rt: HostRuntime) -> Result<(), Fail> {
    ic_session::laws::lines_end_at_feeds();
    Ok(())
}
