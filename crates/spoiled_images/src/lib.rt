//! A second reading of images, which shares no code with the heap: it is written from the description of the formats alone, plainly and
//! slowly. The tests spoil images byte by byte, and compare what the heap answers with what this reading says.
#![tactic(auto)]

// What reads images here serves only the tests, so it is proved only together with them.
#[cfg(test)]
mod bytes;
#[cfg(test)]
mod collecting_tests;
#[cfg(test)]
mod collection_tests;
#[cfg(test)]
mod frame_tests;
#[cfg(test)]
mod frames;
#[cfg(test)]
mod heaps;
#[cfg(test)]
mod hostile_tests;
#[cfg(test)]
mod images;
#[cfg(test)]
mod judging;
#[cfg(test)]
mod reader;
#[cfg(test)]
mod records;
#[cfg(test)]
mod spelling;
#[cfg(test)]
mod state;
#[cfg(test)]
mod stored_image;
#[cfg(test)]
mod tests;
#[cfg(test)]
mod walk;
