//! Laws: what holds of the definitions, whatever the code. A proof calls them; they do nothing when a program runs.

// Of files, headers, records and numbers.
pub use fit_base::laws::{items_and_bytes, numbers_and_bytes, signed_numbers};
pub use fit_frame::laws::{headers_end_once, headers_have_one_spelling, headers_have_their_size};
pub use fit_record::laws::{
    chain_of_one, faults_are_exact, files_have_one_spelling, records_have_one_spelling,
};

// Of events and refusals.
pub use fit_chain::laws::{
    bounds_are_limited, events_are_one, files_end_no_sooner, first_files_are_files,
    progress_is_one, reasons_are_one, refused_bytes_have_reasons, viable_bytes_have_events,
};

// Of writing.
pub use fit_encode::laws::{bad_chains_have_a_fault, faults_are_one, good_chains_have_no_fault};

// Of what messages mean.
pub use fit_numbers::laws::{
    degrees_are_one, instant_has_one_text, scaled_value_is_one, text_has_one_number,
};
pub use fit_profile::laws::{first_is_least, looking_back_is_learning};
pub use fit_report::laws::{heard_are_few, heard_records_fit};

// Of texts.
pub use fit_cells::laws::{cells_are_one, scaled_is_exact, text_reads_back, text_reads_one_way};
pub use fit_csv::laws::{
    chains_are_of_rows, chains_have_own_rows, chains_read_back, records_have_own_rows,
    rows_that_follow, texts_come_back, texts_have_one_finding,
};
pub use fit_rows::laws::events_have_the_rows;
pub use fit_show::laws::chains_have_show_lines;
pub use fit_table::laws::{chains_have_tables, degrees_are_nearest, tables_read_back};
pub use fit_texts::laws::instant_text_is;

// Of blocks and pieces.
pub use fit_from_messages::laws::{
    blocks_come_back, blocks_have_one_finding, blocks_say_one, items_come_back,
};
pub use fit_messages::laws::{
    blocks_are_whole, blocks_have_their_places, messages_have_one_length,
};
pub use fit_stream::laws::{reports_are_found, streams_find_one, streams_of_rows};
