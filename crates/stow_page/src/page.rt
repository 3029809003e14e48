//! The packed bytes of one leaf.
ghost use Rattle.std.specs.Prelude.{◌≡◌, ◌<◌, ◌^◌, length, IfOk, IfErr};
ghost use Rattle.stow_page.specs.Format.{packed_page};
ghost use Rattle.stow_page.specs.Faults.{IsRefusal};

use crate::packed_rows::PackedRows;
use crate::page_fault::PageFault;
use crate::reading::read_rows;
use crate::rows::Rows;
use std::alloc::{AllocError, Allocator, Global};
use std::marker::Model;
use std::sync::Arc;

/// The packed bytes of one leaf, fewer than 2^32, which never change. A copy shares them. A page that was made here
/// carries the places of its entries, so that unpacking it is no work.
#[derive(Drop)]
pub struct Page<A: Allocator = Global> {
    form: Form<A>,
}

/// Where a page's bytes are from.
#[derive(Drop)]
pub enum Form<A: Allocator> {
    /// From rows.
    Made(Arc<PackedRows<A>, A>),
    /// From elsewhere.
    Given(Arc<Vec<u8, A>, A>),
}

impl<A: Allocator> Model for Page<A> {
    ghost use Rattle.std.specs.Prelude.{ℕ, List, ◌<◌, ◌^◌, length};

    ghost Value = { List ℕ };

    ghost use Rattle.stow_page.specs.Form.{bytes_of};

    ghost view = { λ p. bytes_of p.form };

    ghost invariant = { λ p. length (bytes_of p.form) < 2 ^ 32 };
}

impl<A: Allocator> Page<A> {
    /// A page of bytes that come from elsewhere.
    pub fn from_bytes(alloc: A, bytes: Vec<u8, A>) -> Result<Page<A>, AllocError>
        requires { length bytes.items < 2 ^ 32 }
        ensures { IfOk result (λ p. p ≡ bytes.items) }
    {
        Ok(Page {
            form: Form::Given(Arc::new(alloc, bytes)?),
        })
    }

    pub fn as_bytes(&self) -> &[u8]
        ensures bytes { result.now ≡ self.now }
        ensures short { length self.now < 2 ^ 32 }
    {
        match &self.form {
            Form::Made(rows) => rows.as_bytes(),
            Form::Given(bytes) => bytes.as_slice(),
        }
    }

    /// The same page, sharing its bytes.
    pub fn share(&self) -> Result<Page<A>, AllocError>
        ensures { IfOk result (λ p. p ≡ self.now) }
    {
        let form = match &self.form {
            Form::Made(rows) => Form::Made(Arc::try_clone(rows)?),
            Form::Given(bytes) => Form::Given(Arc::try_clone(bytes)?),
        };
        Ok(Page { form })
    }
}

/// The page of the rows, which it shares.
pub fn pack<A: Allocator>(rows: &Rows<A>) -> Result<Page<A>, AllocError>
    ensures { IfOk result (λ p. p ≡ packed_page rows.now) }
{
    Ok(Page {
        form: Form::Made(rows.shared()?),
    })
}

/// The rows whose page it is. A page that was made here shares them; one from elsewhere is read in one pass.
pub fn unpack<A: Allocator + Copy>(alloc: A, page: &Page<A>) -> Result<Rows<A>, PageFault>
    ensures ok { IfOk result (λ r. page.now ≡ packed_page r) }
    ensures err { IfErr result (λ f. IsRefusal f page.now) }
{
    match &page.form {
        Form::Made(rows) => Ok(Rows::from_shared(Arc::try_clone(rows)?)),
        Form::Given(bytes) => read_rows(alloc, bytes.as_slice()),
    }
}
