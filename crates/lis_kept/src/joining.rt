//! The metadata of an image, made of its fields.

ghost use Rattle.std.specs.Prelude.{◌≡◌};
ghost use Rattle.lis_kept.specs.Metadata.{metadata_of};
ghost use Rattle.lis_kept.specs.Links.{AreHeld};

use crate::metadata::Metadata;
use lis_bits::Flags;
use lis_blockmap::BlockMap;
use lis_catalog::Catalog;
use lis_dict::Dict;
use lis_ext::Ext;
use lis_fields::AxiomSlot;
use lis_model::limits::Limits;
use lis_taxonomy::Taxonomy;

/// All that memory keeps, field by field.
#[derive(Drop)]
pub struct Fields {
    pub limits: Limits,
    pub dict: Dict,
    /// By number: the word that has it is declared.
    pub declared: Flags,
    /// By slot, as many as whole blocks have.
    pub axioms: Vec<AxiomSlot>,
    /// The links between the words that have numbers.
    pub taxonomy: Taxonomy,
    pub catalog: Catalog,
    pub map: BlockMap,
    pub ext: Ext,
    /// By block: it must be written.
    pub marks: Flags,
}

impl Metadata {
    /// The metadata of these fields.
    pub fn join(fields: Fields) -> Metadata
        requires { AreHeld (metadata_of fields.limits fields.dict fields.declared fields.axioms.items fields.catalog fields.map fields.ext fields.marks) fields.taxonomy }
        ensures { result ≡ metadata_of fields.limits fields.dict fields.declared fields.axioms.items fields.catalog fields.map fields.ext fields.marks }
    {
        Metadata {
            limits: fields.limits,
            dict: fields.dict,
            declared: fields.declared,
            axioms: fields.axioms,
            taxonomy: fields.taxonomy,
            catalog: fields.catalog,
            map: fields.map,
            ext: fields.ext,
            marks: fields.marks,
        }
    }
}
