//! The texts of a book and its tables, and the network that they give.
use anyhow::{Result, anyhow};
use std::alloc::Global;
use std::fs;
use std::rt::Files;
use th_book::read_book;
use th_network::Network;
use th_observations::Observation;
use th_tables::{Benchmarks, Weights, read_benchmarks, read_weights};

/// The texts that a network is built from.
#[derive(Drop)]
pub struct Texts {
    pub book: Vec<u8>,
    pub benchmarks: Vec<u8>,
    pub weights: Vec<u8>,
}

/// The tables of a network.
#[derive(Drop)]
pub struct Tables {
    pub benchmarks: Benchmarks,
    pub weights: Weights,
}

impl Texts {
    /// The texts in the files of a book, its benchmarks and its weights.
    pub fn read<R: Files + Alloc<A = Global>>(rt: &R, files: [&str; 3]) -> Result<Texts> {
        let [book, benchmarks, weights] = files;
        Ok(Texts {
            book: fs::read(rt, book)?,
            benchmarks: fs::read(rt, benchmarks)?,
            weights: fs::read(rt, weights)?,
        })
    }

    /// Reads the book.
    pub fn observations(&self, alloc: Global) -> Result<Vec<Observation>> {
        read_book(alloc, 1, &self.book).map_err(|_| anyhow!("the book"))
    }

    /// Reads the tables.
    pub fn tables(&self, alloc: Global) -> Result<Tables> {
        Ok(Tables {
            benchmarks: read_benchmarks(alloc, &self.benchmarks).map_err(|_| anyhow!(
                "benchmarks"
            ))?,
            weights: read_weights(alloc, &self.weights).map_err(|_| anyhow!("weights"))?,
        })
    }
}

impl Tables {
    /// Builds the network of observations.
    pub fn network(&self, alloc: Global, observations: Vec<Observation>) -> Result<Network<'_>> {
        Network::build(alloc, observations, &self.benchmarks, &self.weights).map_err(|_| anyhow!(
            "the network"
        ))
    }
}
