//! What is guessed of the words of an image.
use super::classes::Classes;
use super::coding::Coding;
use super::control::Control;
use super::cost::Costs;
use super::hints::{Boldness, Hints};
use super::image::{Image, LOW};
use super::known_names::KnownNames;
use super::names::{NamedAddress, Names, Naming};
use super::path::find_code;
use super::pointers::{Aims, find_pointers, is_round};
use super::references::{Reference, Use, find_references};
use super::starts::find_starts;
use super::texts::find_texts;
use super::told::{Told, is_set, no_marks, set};
use std::alloc::{AllocError, Global};

/// What is guessed of the words of an image.
#[derive(Drop)]
pub struct Guess<'a> {
    pub image: Image<'a>,
    pub told: Told,
    pub coding: Coding,
    pub references: Vec<Reference>,
    /// The words that are called.
    called: Vec<bool>,
    pub texts: Vec<bool>,
    pub pointers: Vec<bool>,
    pub names: Names,
}

/// Which words are code: what the costs say, and what is reached from there and from the entries.
pub fn find_coding(
    alloc: Global,
    image: Image<'_>,
    hints: &Hints,
    told: &mut Told,
) -> Result<Coding, AllocError> {
    let mut reached = Coding::new(alloc, &image)?;
    Control { image, told }.follow_entries(alloc, &hints.entries, &mut reached)?;
    for index in 0..image.words.len() {
        if reached.is_code(index) {
            told.tell_code(index);
        }
    }
    let mut coding = Coding::new(alloc, &image)?;
    find_code(alloc, &Costs::of(image), told, &mut coding)?;
    Control { image, told }.follow_code(alloc, &mut coding)?;
    leave_plain(&image, told, &mut coding);
    Ok(coding)
}

/// Takes away the code that is zeros, or has words that are to be plain numbers.
fn leave_plain(image: &Image<'_>, told: &Told, coding: &mut Coding) {
    for index in 0..image.words.len() {
        let is_zero = image.is_central() && image.is_whole(index) && image.value(index) == 0;
        let is_plain = told.is_plain(index)
            || (coding.size(index) == 2 && told.is_plain(index.saturating_add(1)));
        if is_zero || is_plain {
            coding.put(index, 0);
        }
    }
}

/// Whether a reference gives its address a name.
fn is_naming(image: &Image<'_>, known: &KnownNames<'_>, reference: &Reference) -> bool {
    let address = reference.address;
    let has_label = image.has_label(address);
    match reference.how {
        Use::Called | Use::Reached | Use::Cell if address < LOW => {
            has_label || known.name(address).is_some()
        }
        Use::Called | Use::Reached | Use::Cell => address < image.limit(),
        Use::Table => has_label && address >= LOW,
        Use::Trace => true,
        Use::Value => false,
    }
}

/// The addresses that instructions and entries name, in their order.
fn named_addresses(
    alloc: Global,
    image: &Image<'_>,
    hints: &Hints,
    known: &KnownNames<'_>,
    references: &[Reference],
) -> Result<Vec<u32>, AllocError> {
    let mut named = Vec::new(alloc);
    for reference in references {
        if is_naming(image, known, reference) {
            named.push(reference.address)?;
        }
    }
    for entry in &hints.entries {
        if image.has(*entry) {
            named.push(*entry)?;
        }
    }
    named.sort_unstable();
    Ok(named)
}

/// Those of some addresses that can have labels, in the same order.
fn labels_of(alloc: Global, image: &Image<'_>, named: &[u32]) -> Result<Vec<u32>, AllocError> {
    let mut labels = Vec::new(alloc);
    for address in named {
        if image.has_label(*address) {
            labels.push(*address)?;
        }
    }
    Ok(labels)
}

/// Whether a number that an instruction has is an address: it isn't round, or something is there.
fn is_address(classes: &Classes<'_, '_>, aims: &Aims<'_>, texts: &[bool], number: u32) -> bool {
    let image = &classes.image;
    if number < LOW || number >= image.limit() {
        return false;
    }
    if !image.stands(number) && number != image.behind() {
        return false;
    }
    let is_text = image.index_of(number).is_some_and(|it| is_set(texts, it));
    is_text || aims.has(classes, number) || (image.is_central() && !is_round(number))
}

/// Appends the numbers of instructions that are addresses.
fn push_values(
    classes: &Classes<'_, '_>,
    aims: &Aims<'_>,
    texts: &[bool],
    references: &[Reference],
    addresses: &mut Vec<u32>,
) -> Result<(), AllocError> {
    for reference in references {
        if reference.how == Use::Value && is_address(classes, aims, texts, reference.address) {
            addresses.push(reference.address)?;
        }
    }
    Ok(())
}

/// Appends the addresses of known names that a line can have.
fn push_known(
    image: &Image<'_>,
    known: &KnownNames<'_>,
    addresses: &mut Vec<u32>,
) -> Result<(), AllocError> {
    for index in 0..known.len() {
        if let Some(address) = known.address(index)
            && image.has_label(address)
        {
            addresses.push(address)?;
        }
    }
    Ok(())
}

/// Marks the words that are called.
fn called_words(
    alloc: Global,
    image: &Image<'_>,
    references: &[Reference],
) -> Result<Vec<bool>, AllocError> {
    let mut called = no_marks(alloc, image)?;
    for reference in references {
        if reference.how == Use::Called
            && let Some(index) = image.index_of(reference.address)
        {
            set(&mut called, index);
        }
    }
    Ok(called)
}

/// What is found of data.
#[derive(Drop)]
struct FoundData {
    texts: Vec<bool>,
    pointers: Vec<bool>,
    /// The addresses that have names.
    addresses: Vec<u32>,
}

/// What is text, what is an address, and which addresses have names.
fn find_data(
    alloc: Global,
    classes: &Classes<'_, '_>,
    hints: &Hints,
    known: &KnownNames<'_>,
    references: &[Reference],
) -> Result<FoundData, AllocError> {
    let image = &classes.image;
    let named = named_addresses(alloc, image, hints, known, references)?;
    let first_texts = find_texts(alloc, classes, &no_marks(alloc, image)?)?;
    let starts = find_starts(alloc, classes, &first_texts)?;
    let labels = labels_of(alloc, image, &named)?;
    let aims = Aims {
        named: &labels,
        starts: &starts,
    };
    let mut addresses = named;
    let pointers = find_pointers(alloc, classes, &aims, &first_texts, &mut addresses)?;
    let texts = find_texts(alloc, classes, &pointers)?;
    push_values(classes, &aims, &texts, references, &mut addresses)?;
    push_known(image, known, &mut addresses)?;
    Ok(FoundData {
        texts,
        pointers,
        addresses,
    })
}

impl<'a> Guess<'a> {
    pub fn of(
        alloc: Global,
        image: Image<'a>,
        hints: &Hints,
        boldness: &Boldness,
    ) -> Result<Guess<'a>, AllocError> {
        if matches!(boldness, Boldness::Plain) {
            return Guess::nothing(alloc, image, hints, boldness);
        }
        let mut told = Told::of(alloc, &image, hints, boldness)?;
        let coding = find_coding(alloc, image, hints, &mut told)?;
        let references = find_references(alloc, &image, &coding)?;
        let known = KnownNames::of(alloc, &hints.names)?;
        let classes = Classes::of(image, &told, &coding);
        let found = find_data(alloc, &classes, hints, &known, &references)?;
        let FoundData {
            texts,
            pointers,
            addresses,
        } = found;
        let naming = Naming {
            image,
            coding: &coding,
            references: &references,
            known: &known,
        };
        let names = naming.names(alloc, addresses, &told)?;
        let called = called_words(alloc, &image, &references)?;
        Ok(Guess {
            image,
            told,
            coding,
            references,
            called,
            texts,
            pointers,
            names,
        })
    }

    /// Whether a word is whole, and data that isn't to be a plain number.
    pub fn is_free(&self, index: usize) -> bool {
        self.image.is_whole(index) && !self.coding.is_code(index) && !self.told.is_plain(index)
    }

    /// Whether a word can stand behind others in one line of data: it is free and has no name.
    pub fn is_unbroken(&self, index: usize) -> bool {
        self.is_free(index) && self.names.of_word(index).is_none()
    }

    /// Whether a word is called.
    pub fn is_called(&self, index: usize) -> bool {
        is_set(&self.called, index)
    }

    /// Whether a word is text.
    pub fn is_text(&self, index: usize) -> bool {
        is_set(&self.texts, index)
    }

    /// Whether a word is an address, or has one.
    pub fn is_pointer(&self, index: usize) -> bool {
        is_set(&self.pointers, index)
    }

    /// The name of a word; empty where it has none.
    pub fn name(&self, index: usize) -> &[u8] {
        match self.names.of_word(index) {
            Some(named) => &named.name,
            None => b"",
        }
    }

    /// The named address, if an address has a name.
    pub fn named(&self, address: u32) -> Option<&NamedAddress> {
        self.names.find(&self.image, address)
    }

    /// Nothing is guessed: each word is a plain number.
    fn nothing(
        alloc: Global,
        image: Image<'a>,
        hints: &Hints,
        boldness: &Boldness,
    ) -> Result<Guess<'a>, AllocError> {
        Ok(Guess {
            image,
            told: Told::of(alloc, &image, hints, boldness)?,
            coding: Coding::new(alloc, &image)?,
            references: Vec::new(alloc),
            called: no_marks(alloc, &image)?,
            texts: no_marks(alloc, &image)?,
            pointers: no_marks(alloc, &image)?,
            names: Names::none(alloc),
        })
    }
}
